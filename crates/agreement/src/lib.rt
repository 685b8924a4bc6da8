// The law of agreement, for any number of faults. Each function states one law in its contract and does nothing else.
// The definitions are in `specs`, and `docs/agreement.md` has the argument in words.
#![tactic(auto)]

ghost use Rattle.agreement.specs.Laws.{QuorumsOverlap, CertificatesAgree, SettledBinds, SettledAgree, OneList};
ghost use Rattle.agreement.specs.Traces.{InSoundGroups, UnderRules};
ghost use Rattle.agreement.specs.Example.{RulesKept};

// Two quorums of a group share a correct replica.
#[tactic(auto, using(crate::proofs::Groups::quorums_overlap))]
pub fn quorums_overlap()
    ensures { InSoundGroups QuorumsOverlap }
{}

// Two certificates of one view and slot are for one command.
pub fn certificates_agree()
    ensures { UnderRules CertificatesAgree }
{}

// What is settled in a view binds every later vote, and every certificate and commit from that view on.
#[tactic(auto, using(crate::proofs::Laws::settled_binds))]
pub fn settled_binds()
    ensures { UnderRules SettledBinds }
{}

// Whatever is settled in a slot, in whatever views, is one command.
pub fn settled_agree()
    ensures { UnderRules SettledAgree }
{}

// All justified decisions are read from one list of commands.
pub fn decisions_form_one_list()
    ensures { UnderRules OneList }
{}

// The rules can be kept with a liar in the group, and a command be settled under them, in more than one view.
#[tactic(auto, using(crate::proofs::Example::rules_kept))]
pub fn rules_can_be_kept()
    ensures { RulesKept }
{}
