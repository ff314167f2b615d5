// A call on a board: a place and a height for floor and ceiling, a budget for run.
#[derive(Clone, Copy)]
pub enum Call {
    Floor(usize, u32),
    Ceiling(usize, u32),
    Run(u32),
    Read,
}
