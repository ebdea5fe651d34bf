// The law of whole runs, for whoever goes call by call as for whoever runs many calls at once.
#![tactic(auto)]

ghost use Rattle.std.specs.Prelude.{List};
ghost use Rattle.journal.specs.Meaning.{Meaning, Lawful};
ghost use Rattle.rules.specs.State.{Kind, State, new};
ghost use Rattle.rules.specs.Steps.{Event, Follows};
ghost use Rattle.rules.specs.Law.{Law};

/// Does nothing, and promises the law: a chain of calls from an archive that was new over a journal of any lawful meaning,
/// each answered by the rules, obeys it.
pub fn runs_obey()
    ensures { (kind : Kind) (m : Meaning) (h : List Event) (t : State) → Lawful m → Follows kind (new m) h t → Law kind m h t }
{}
