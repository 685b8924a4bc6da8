// Who plays which part in a view.
ghost use Rattle.std.specs.Prelude.{◌≡◌, ◌<◌};
ghost use Rattle.proof.specs.Roles.{primary, spare, everyone, without, active, two_of, backups};
ghost use Rattle.proof.specs.Laws.{ActiveQuorum, PartsDiffer};

use packet::View;

// The replica that orders.
pub fn primary(view: View) -> u8
    ensures { result ≡ primary view.0 }
{
    (view.0.saturating_sub(1) % 4) as u8
}

// The replica that does not vote.
pub fn spare(view: View) -> u8
    ensures { result ≡ spare view.0 }
{
    ((u64::from(view.0) + 2) % 4) as u8
}

// The replicas but one, by rising number.
fn all_but(number: u8) -> [u8; 3]
    requires { number < 4 }
    ensures { result ≡ without number everyone }
{
    match number {
        0 => [1, 2, 3],
        1 => [0, 2, 3],
        2 => [0, 1, 3],
        _ => [0, 1, 2],
    }
}

// The replicas that vote: all but the spare, by rising number.
#[tactic(auto, unfolding(crate::specs::Roles::active))]
pub fn active(view: View) -> [u8; 3]
    ensures exact { result ≡ active view.0 }
    ensures law { ActiveQuorum }
{
    all_but(spare(view))
}

// Three numbers without one of them.
fn two_of(low: u8, middle: u8, high: u8, without: u8) -> [u8; 2]
    ensures { result ≡ two_of low middle high without }
{
    if low == without {
        [middle, high]
    } else if middle == without {
        [low, high]
    } else {
        [low, middle]
    }
}

// The active replicas but the primary, by rising number.
#[tactic(auto, using(crate::proofs::Actives::parts_differ, crate::proofs::Actives::backups_picked))]
pub fn backups(view: View) -> [u8; 2]
    ensures exact { result ≡ backups view.0 }
    ensures law { PartsDiffer }
{
    let [low, middle, high] = active(view);
    two_of(low, middle, high, primary(view))
}
