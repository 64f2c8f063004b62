//! What each verb does.
ghost use Rattle.std.specs.Prelude.{◌≡◌, ◌≤◌, length, IfOk, Ok};
ghost use Rattle.std.specs.List.{AllByRecursion};
ghost use Rattle.closed_entries.specs.States.{State as ClosedList};
ghost use Rattle.closed_entries.specs.declared.limits.TheConstants.{ENTRIES};
ghost use Rattle.machine_law.specs.Kind.{fold as kind_fold};
ghost use Rattle.replay_machine.specs.Step.{fold};
ghost use Rattle.script_lines.specs.Ranges.{IsVerb};
ghost use Rattle.session_commands.specs.Table.{IsInRange, IsSound};
ghost use Rattle.tabs_compactor.specs.TabsKind.{tabs_kind, IsCommand};
ghost use Rattle.window_state.specs.States.{State};
ghost use Rattle.browser_model.specs.Browsers.{Matches};
ghost use Rattle.browser_model.specs.Running.{IsRunning};

use crate::browser::Browser;
use crate::fault::ActError;
use crate::issued::Issued;
use script_lines::Verb;
use window_state::GroupId;

impl Browser {
    ghost use Rattle.script_lines.specs.declared.verb.Verb.TheVariants.{At};
    ghost use Rattle.browser_driver.specs.Acts.{act};
    ghost use Rattle.browser_driver.specs.Answers.{Answers, outcome_of};

    /// The verb is done or refused. `Refused` says why by the first refusal that holds, in the order in which the verb
    /// tests them. After an error the browser is as it was.
    pub fn act(&mut self, verb: &Verb) -> Result<Issued, ActError>
        requires { IsVerb verb.now }
        ensures acts { Answers (act verb.now self.old) self.old self.new result }
        ensures follows { (s : State) → IsRunning s → Matches s self.old →
            IfOk result (λ issued. Matches (fold s issued.session) self.new) }
        ensures closed { (c : ClosedList) → c.awaited ≡ 0 → c.entries ≡ self.old.closed → length c.entries ≤ ENTRIES →
            IfOk result (λ issued. ((kind_fold tabs_kind c issued.tabs).entries ≡ self.new.closed)
            × ((kind_fold tabs_kind c issued.tabs).awaited ≡ 0)) }
        ensures sound { IfOk result (λ issued. AllByRecursion IsSound issued.session) }
        ensures ranged { IfOk result (λ issued. AllByRecursion IsInRange issued.session) }
        ensures commands { IfOk result (λ issued. AllByRecursion IsCommand issued.tabs) }
    {
        let answer = self.do_verb(verb);
        // Each closed entry fits its commands.
        self.closed.known();
        known_in_range(&answer);
        answer
    }

    fn do_verb(&mut self, verb: &Verb) -> Result<Issued, ActError>
        requires { IsVerb verb.now }
        ensures { Answers (act verb.now self.old) self.old self.new result }
    {
        match verb {
            Verb::At { moment } => Ok(self.set_moment(*moment)),
            Verb::Window { window } => self.open_window(*window),
            Verb::Tab { window, tab } => self.open_tab(*window, *tab),
            Verb::Visit {
                tab,
                url,
                state,
                title,
            } => self.visit(*tab, url, *state, title),
            Verb::Back { tab } => self.go_back(*tab),
            Verb::Forward { tab } => self.go_forward(*tab),
            Verb::Pin { tab } => self.pin(*tab, true),
            Verb::Unpin { tab } => self.pin(*tab, false),
            Verb::Ungroup { tab } => self.ungroup(*tab),
            Verb::CloseTab { tab } => self.close_tab(*tab),
            Verb::Move { tab, window, place } => self.move_tab(*tab, *window, *place),
            Verb::Select { window, place } => self.select(*window, *place),
            Verb::SetBounds { window, bounds } => self.set_bounds(*window, *bounds),
            Verb::Group {
                tab,
                high,
                low,
                colour,
                title,
            } => self.group(
                *tab,
                GroupId {
                    high: *high,
                    low: *low,
                },
                *colour,
                title,
            ),
            Verb::Title { tab, title } => self.set_title(*tab, title),
            Verb::Active { window } => self.activate(*window),
            Verb::CloseWindow { window } => self.close_window(*window),
            Verb::Sync => Ok(Issued::sync(self.alloc)),
            Verb::Compact => Ok(Issued::compact(self.alloc)),
        }
    }

    fn set_moment(&mut self, moment: i64) -> Issued
        ensures { act (At moment) self.old ≡ Ok (outcome_of self.new result) }
    {
        self.moment = moment;
        Issued::nothing(self.alloc)
    }
}

// An empty walk, by which code above learns that the numbers of all commands are in the ranges of their types.
fn known_in_range(answer: &Result<Issued, ActError>)
    ensures { IfOk answer.now (λ issued. AllByRecursion IsInRange issued.session) }
{
    let Ok(issued) = answer else {
        return;
    };
    for command in issued.session.as_slice() {
        command.known_in_range();
    }
}
