ghost use Rattle.std.specs.Prelude.{◌≡◌};
ghost use Rattle.refusal.specs.declared.Layer.TheVariants.{Board};
ghost use Rattle.refusal.specs.Table.{row};

use refusal::{Layer, Refusal, Rule};

// The refusal of a place, or of the height that is given for it.
pub(crate) fn refuse(rule: Rule, place: usize) -> Refusal
    ensures { result ≡ row rule place Board }
{
    Refusal {
        rule,
        position: place,
        layer: Layer::Board,
    }
}
