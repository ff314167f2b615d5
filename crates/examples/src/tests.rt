mod owner;
mod placing;
mod recording;
