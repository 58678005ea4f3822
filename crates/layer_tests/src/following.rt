//! Tests of the rule of votes.

ghost use Rattle.std.specs.Prelude.{◌≡◌};

use bracha_validation::{Tally, may_follow};
use ritas_base::Params;

fn tally(zeros: u8, ones: u8, nones: u8) -> Tally
    ensures { result ≡ record { zeros = zeros; ones = ones; nones = nones } }
{
    Tally { zeros, ones, nones }
}

// Four replicas, of which one may be faulty: three votes are waited for.
#[test]
fn votes_of_four(rt: HostRuntime) {
    let p = Params::new(4, 1).unwrap();
    assert!(rt; !may_follow(&p, 3, 1, &tally(1, 2, 0)) && may_follow(&p, 3, 1, &tally(1, 3, 0)));
}
