//! A machine: a state, the commands that change it, and their payloads.
ghost use Rattle.std.specs.Prelude.{◌≡◌, ◌<◌, ◌≤◌, ◌++◌, length, IfOk, OnOk, OnErr};
ghost use Rattle.std.specs.List.{AllByRecursion};
ghost use Rattle.machine_law.specs.Kind.{Kind, IsLawful, payload_limit};

use std::alloc::{AllocError, Global};

/// A state, its commands and their payloads. `kind` is what they mean as plain functions, and `lawful` its laws: a
/// compaction folds to the very state, the marker changes none, a covered command needn't be there. The laws on
/// compactions speak of states that meet `is_state`, and those on commands of any state. Every call gives and keeps
/// states that meet `is_state` and commands that meet `is_command`.
pub trait Machine {
    type State: Drop + Send;

    type Command: Drop + Send;

    ghost kind: { Kind Self.State Self.Command };

    /// What every state in hand meets.
    ghost is_state: { Self.State → Type 0 };

    /// What is asked of a command in hand: its payload can be written.
    ghost is_sound: { Self.Command → Type 0 };

    /// What a sound command meets: its numbers are in the ranges of their types too.
    ghost is_command: { Self.Command → Type 0 };

    ghost lawful: { IsLawful kind is_state is_command };

    /// The state before any command.
    fn start(alloc: Global) -> Result<Self::State, AllocError>
        ensures { IfOk result (λ state. state ≡ kind.start) };

    /// One step. After want of memory the state is as it was.
    fn apply(state: &mut Self::State, command: &Self::Command) -> Result<(), AllocError>
        requires { is_command command.now }
        ensures ok { OnOk result (state.new ≡ kind.step state.old command.now) }
        ensures err { OnErr result (state.new ≡ state.old) };

    /// The commands that restate a state.
    fn compact(alloc: Global, state: &Self::State) -> Result<Vec<Self::Command>, AllocError>
        ensures compaction { IfOk result (λ commands. commands.items ≡ kind.compaction state.now) }
        ensures commands { IfOk result (λ commands. AllByRecursion is_command commands.items) };

    /// The commands after which the state shows the same and nothing else.
    fn tidy(alloc: Global, state: &Self::State) -> Result<Vec<Self::Command>, AllocError>
        ensures tidying { IfOk result (λ commands. commands.items ≡ kind.tidying state.now) }
        ensures commands { IfOk result (λ commands. AllByRecursion is_command commands.items) };

    /// The command of an id and a payload of at most 65,534 bytes.
    fn read(alloc: Global, id: u8, payload: &[u8]) -> Result<Self::Command, AllocError>
        requires { length payload.now ≤ payload_limit }
        ensures found { IfOk result (λ command. kind.Payload id command payload.now) }
        ensures command { IfOk result (λ command. is_command command) };

    /// Appends the payload, which has at most 65,534 bytes and reads back, and answers the id. After want of memory
    /// nothing was appended.
    fn write(command: &Self::Command, out: &mut Vec<u8>) -> Result<u8, AllocError>
        requires { is_command command.now }
        ensures ok { OnOk result (out.new.items ≡ out.old.items ++ kind.payload command.now) }
        ensures id { IfOk result (λ id. id ≡ kind.id command.now) }
        ensures err { OnErr result (out.new.items ≡ out.old.items) }
        ensures short { length (kind.payload command.now) ≤ payload_limit }
        ensures byte { kind.id command.now < 256 }
        ensures reads_back { kind.Payload (kind.id command.now) command.now (kind.payload command.now) };

    /// Whether the first command changes nothing that the second doesn't, so that the second alone leads to the same
    /// state, from any state. It takes no memory.
    fn covers(first: &Self::Command, second: &Self::Command) -> bool
        ensures { result ≡ kind.covers first.now second.now };

    /// The same command, in memory of its own.
    fn copy(command: &Self::Command) -> Result<Self::Command, AllocError>
        requires { is_command command.now }
        ensures copied { IfOk result (λ copied. copied ≡ command.now) };

    /// An empty call by which generic code learns what the state meets.
    fn known_state(state: &Self::State)
        ensures { is_state state.now };

    /// An empty call by which generic code learns what a sound command meets.
    fn known_command(command: &Self::Command)
        requires { is_sound command.now }
        ensures { is_command command.now };
}
