//! What is to be done to both journals, and what each of them does of it. An item is cut into a job for the journal of
//! each family.
ghost use Rattle.std.specs.Prelude.{◌≡◌};
ghost use Rattle.writer_core.specs.Jobs.{session_job, tabs_job};
ghost use Rattle.writer_core.specs.Ends.{is_end, is_sync};

/// What is to be done: a command written to the journal of a family, or both journals synced or compacted. The end of
/// all items asks nothing.
#[derive(Drop)]
pub enum Item<A, B> {
    Session(A),
    Tabs(B),
    Sync,
    Compact,
    End,
}

/// What one journal does of an item.
#[derive(Drop)]
pub enum Job<C> {
    Write(C),
    Sync,
    Compact,
    Nothing,
}

/// The jobs of an item for the journal of the session and for that of the tabs.
pub fn jobs<A, B>(item: Item<A, B>) -> (Job<A>, Job<B>)
    ensures session { result.0 ≡ session_job item }
    ensures tabs { result.1 ≡ tabs_job item }
{
    match item {
        Item::Session(command) => (Job::Write(command), Job::Nothing),
        Item::Tabs(command) => (Job::Nothing, Job::Write(command)),
        Item::Sync => (Job::Sync, Job::Sync),
        Item::Compact => (Job::Compact, Job::Compact),
        Item::End => (Job::Nothing, Job::Nothing),
    }
}

impl<A, B> Item<A, B> {
    /// Whether this is the end of all items.
    pub fn is_end(&self) -> bool
        ensures { result ≡ is_end self.now }
    {
        matches!(self, Item::End)
    }

    /// Whether this asks for a sync of both journals.
    pub fn is_sync(&self) -> bool
        ensures { result ≡ is_sync self.now }
    {
        matches!(self, Item::Sync)
    }
}
