//! What a command says of the newest entry: of a tab, of a window, or of the last of a window's tabs. What it brings is
//! copied first, so that nothing has changed after want of memory.
ghost use Rattle.std.specs.Prelude.{◌≡◌, OnOk, OnErr};
ghost use Rattle.closed_entries.specs.LastItem.{on_last};
ghost use Rattle.closed_entries.specs.Parts.{changed_entry, changed_tab, changed_window};
ghost use Rattle.tab_pages.specs.PageLists.{put_page};

use crate::closed_tab::ClosedTab;
use crate::closed_window::ClosedWindow;
use crate::entry::Entry;
use navigation_entry::Navigation;
use std::alloc::AllocError;
use tab_restore_commands::TabsCommand;

pub(crate) fn newest(entries: &mut Vec<Entry>, command: &TabsCommand) -> Result<(), AllocError>
    ensures ok { OnOk result (entries.new.items ≡ on_last (changed_entry command.now) entries.old.items) }
    ensures err { OnErr result (entries.new.items ≡ entries.old.items) }
{
    match entries.last_mut() {
        Some(entry) => of_entry(entry, command),
        None => Ok(()),
    }
}

fn of_entry(entry: &mut Entry, command: &TabsCommand) -> Result<(), AllocError>
    ensures ok { OnOk result (entry.new ≡ changed_entry command.now entry.old) }
    ensures err { OnErr result (entry.new ≡ entry.old) }
{
    match entry {
        Entry::Tab(tab) => of_tab(tab, command),
        Entry::Window(window) => of_window(window, command),
    }
}

fn of_window(window: &mut ClosedWindow, command: &TabsCommand) -> Result<(), AllocError>
    ensures ok { OnOk result (window.new ≡ changed_window command.now window.old) }
    ensures err { OnErr result (window.new ≡ window.old) }
{
    match command {
        TabsCommand::WindowApp { name, .. } => {
            window.app = Some(name.copy()?);
            Ok(())
        }
        TabsCommand::UserTitle { title, .. } => {
            window.title = Some(title.copy()?);
            Ok(())
        }
        _ => of_last_tab(window.tabs.as_mut_vec(), command),
    }
}

fn of_last_tab(tabs: &mut Vec<ClosedTab>, command: &TabsCommand) -> Result<(), AllocError>
    ensures ok { OnOk result (tabs.new.items ≡ on_last (changed_tab command.now) tabs.old.items) }
    ensures err { OnErr result (tabs.new.items ≡ tabs.old.items) }
{
    match tabs.last_mut() {
        Some(tab) => of_tab(tab, command),
        None => Ok(()),
    }
}

fn of_tab(tab: &mut ClosedTab, command: &TabsCommand) -> Result<(), AllocError>
    ensures ok { OnOk result (tab.new ≡ changed_tab command.now tab.old) }
    ensures err { OnErr result (tab.new ≡ tab.old) }
{
    match command {
        TabsCommand::UpdateNavigation {
            index,
            navigation,
            ..
        } => of_pages(tab, *index, navigation),
        TabsCommand::Pinned { pinned } => {
            tab.pinned = *pinned;
            Ok(())
        }
        TabsCommand::Extension { extension, .. } => {
            tab.extension = Some(extension.copy()?);
            Ok(())
        }
        TabsCommand::UserAgent { rest, .. } => {
            tab.agent = Some(rest.copy()?);
            Ok(())
        }
        TabsCommand::Group { group } => {
            tab.group = Some(group.copy()?);
            Ok(())
        }
        _ => Ok(()),
    }
}

// A negative index changes nothing.
fn of_pages(tab: &mut ClosedTab, index: i32, navigation: &Navigation) -> Result<(), AllocError>
    ensures ok { OnOk result (tab.new ≡ record tab.old { pages = put_page index navigation.now tab.old.pages }) }
    ensures err { OnErr result (tab.new ≡ tab.old) }
{
    if index < 0 {
        return Ok(());
    }
    let navigation = navigation.copy()?;
    tab.pages.put(index, navigation)
}
