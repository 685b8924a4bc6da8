// The law of one replica's pages. The function states it in its contract and does nothing else.
// The definitions are in `specs`, and `docs/ledger.md` has the argument in words.
#![tactic(auto)]

ghost use Rattle.ledger.specs.Laws.{RulesKept};

// A replica that writes its pages by these deeds keeps the rules, whatever it is sent and in whatever order. It accepts
// one order for each view and slot. Its reports leave nothing out and make nothing up. A page shows a decision only if
// there was cause for it, and a slot with such a cause shows one until it is collected.
#[tactic(auto, using(crate::proofs::Along::good))]
pub fn pages_keep_the_rules()
    ensures { RulesKept }
{}
