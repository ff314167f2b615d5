ghost use Rattle.std.specs.Prelude.{◌≡◌, ◌<◌, ◌≤◌, MatchResult};
ghost use Rattle.gates.specs.Gates.{sides};
ghost use Rattle.wire.specs.Records.{record_row};
ghost use Rattle.jobfile.specs.Table.{RowBroken, RowsBroken, GatesBroken};
ghost use Rattle.jobfile.specs.Fields.{RowRead, RowsRead, GatesRead};

use gates::gates::Gates;
use gates::side::Side;
use wire::reader::Reader;
use wire::record;
use wire::record::RecordFault;

// One row. The gates themselves know whether it is an order. Reader and gates stand apart, being lent by different owners.
fn row(reader: &mut Reader<'_>, gates: &mut Gates, side: Side, i: usize) -> Result<(), RecordFault>
    requires { i < (sides gates.old).n }
    ensures { MatchResult result (λ _. RowRead side i reader.old reader.new gates.old gates.new) (λ e. RowBroken (sides gates.old).n reader.old.total reader.old.rest.now (record_row e)) }
{
    let start = reader.position();
    let order = record::row(reader, gates.count() as u8)?;
    gates
        .put(side, i, order)
        .map_err(|_| RecordFault::Row(start))
}

fn rows(reader: &mut Reader<'_>, gates: &mut Gates, side: Side) -> Result<(), RecordFault>
    ensures { MatchResult result (λ _. RowsRead side reader.old reader.new gates.old gates.new) (λ e. RowsBroken (sides gates.old).n reader.old.total reader.old.rest.now (record_row e)) }
{
    // Over the numbers of the rows: there is no list of them yet, each is read and put in its turn.
    for i in 0..gates.count() {
        row(reader, gates, side, i)?;
    }
    Ok(())
}

// The body of a gates job: the rows of the vans, and then those of the gates.
pub(crate) fn gates_body(reader: &mut Reader<'_>, gates: &mut Gates) -> Result<(), RecordFault>
    ensures { MatchResult result (λ _. GatesRead (sides gates.old).n reader.old reader.new gates.new) (λ e. GatesBroken (sides gates.old).n reader.old.total reader.old.rest.now (record_row e)) }
{
    rows(reader, gates, Side::Vans)?;
    rows(reader, gates, Side::Gates)
}
