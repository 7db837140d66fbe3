// How a call tests and refuses.
ghost use Rattle.std.specs.Prelude.{◌≡◌, true, false, MatchResult};
ghost use Rattle.calls.specs.Tests.{refused_by};

use refusal::{Layer, Reason, Refusal};

// A single call refuses with the place 0. Layer and reason come as two words with each test: a struct of both would be written out at each.
pub(crate) fn refused(layer: Layer, reason: Reason) -> Refusal
    ensures { result ≡ refused_by layer reason }
{
    Refusal {
        reason,
        layer,
        place: 0,
    }
}

// A test of a call: where it fails, the call refuses.
pub(crate) fn check(holds: bool, layer: Layer, reason: Reason) -> Result<(), Refusal>
    ensures { MatchResult result (λ _. holds ≡ true) (λ e. (holds ≡ false) × (e ≡ refused_by layer reason)) }
{
    if holds {
        Ok(())
    } else {
        Err(refused(layer, reason))
    }
}
