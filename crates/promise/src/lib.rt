// The step of each call of a replica, histories of a group, and the group's promise: definitions in `specs`.
#![tactic(auto)]

ghost use Rattle.promise.specs.Claims.{Promised};
ghost use Rattle.promise.specs.Example.{Exists};

use service::Service;

// Promises what a group of replicas promises: for every service, every history of calls from bytes to bytes and every meaning
// of seals, with at most one replica breaking the rules and no seal forged; and that there is such a history, in which a slot is
// decided, carried out and collected. It does nothing.
#[tactic(auto, using(crate::proofs::Promises::promised, crate::proofs::Example::exists))]
pub fn promise_stands<S: Service>()
    ensures promise { Promised S.State }
    ensures exists { Exists }
{}
