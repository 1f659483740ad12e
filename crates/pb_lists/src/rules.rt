//! The test whether a row may be cut at a weight under an incumbent.
ghost use Rattle.std.specs.Prelude.{◌≡◌, ◌↔◌, IsTrue};
ghost use Rattle.pb_model.specs.Store.{MayBeCut};
ghost use Rattle.pb_model.specs.Weight.{Weight, IsWeight};

use pb_model::Estimate;

/// Whether a row with this g and estimate may be cut at the weight num / den under this incumbent.
pub fn may_be_cut(weight: (u64, u64), incumbent: Option<u64>, g: u64, estimate: Estimate) -> bool
    requires { IsWeight (record { num = weight.0; den = weight.1 }) }
    ensures { IsTrue result ↔ MayBeCut (record { num = weight.0; den = weight.1 }) incumbent g
        estimate }
{
    let (num, den) = weight;
    match (estimate, incumbent) {
        (Estimate::Dead, _) => true,
        (Estimate::Cost(_), None) => false,
        (Estimate::Cost(h), Some(best)) => {
            let through = u128::from(g) + u128::from(h);
            u128::from(den) * u128::from(best) <= u128::from(num) * through
        }
    }
}
