#![tactic(auto)]

ghost use Rattle.samples.specs.Rows.{Rows};
ghost use Rattle.samples.specs.Sample.{Sample};

// One small file for each row of the table of refusals, and the sample job, as facts about the table and the encoding.
pub fn table_samples()
    ensures rows { Rows }
    ensures sample { Sample }
{}

#[cfg(test)]
mod tests;
