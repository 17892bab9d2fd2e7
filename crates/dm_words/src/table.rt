//! The commands, and the options of each.
ghost use Rattle.std.specs.Prelude.{◌≡◌, ◌≢◌, ◌↔◌, ◌∷◌, [], codes, IfSome, IfNone, IsTrue};
ghost use Rattle.std.specs.List.{Contains};

use dm_types::Text;

/// A command, by its first word.
#[derive(Clone, Copy, Debug, PartialEq, Eq)]
pub enum CommandName {
    Get,
    Add,
    Resume,
    Pause,
    Cancel,
    Remove,
    Show,
    List,
    Report,
    Export,
    Archive,
    History,
    Import,
    Rehearse,
    Serve,
}

impl CommandName {
    ghost use Rattle.dm_words.specs.Table.{name_of, options_of};
    ghost use Rattle.dm_words.specs.declared.table.CommandName.{CommandName as Name};

    /// The command with this name.
    pub(crate) fn of(word: &Text) -> Option<CommandName>
        ensures some { IfSome result (λ name. word.now ≡ name_of name) }
        ensures none { IfNone result ((name : Name) → word.now ≢ name_of name) }
    {
        if word.is(b"get") {
            Some(CommandName::Get)
        } else if word.is(b"add") {
            Some(CommandName::Add)
        } else if word.is(b"resume") {
            Some(CommandName::Resume)
        } else if word.is(b"pause") {
            Some(CommandName::Pause)
        } else if word.is(b"cancel") {
            Some(CommandName::Cancel)
        } else if word.is(b"remove") {
            Some(CommandName::Remove)
        } else if word.is(b"show") {
            Some(CommandName::Show)
        } else if word.is(b"list") {
            Some(CommandName::List)
        } else if word.is(b"report") {
            Some(CommandName::Report)
        } else if word.is(b"export") {
            Some(CommandName::Export)
        } else if word.is(b"archive") {
            Some(CommandName::Archive)
        } else if word.is(b"history") {
            Some(CommandName::History)
        } else if word.is(b"import") {
            Some(CommandName::Import)
        } else if word.is(b"rehearse") {
            Some(CommandName::Rehearse)
        } else if word.is(b"serve") {
            Some(CommandName::Serve)
        } else {
            None
        }
    }

    /// Whether the command has this option.
    pub(crate) fn takes(self, option: &Text) -> bool
        ensures { IsTrue result ↔ Contains (options_of self) option.now }
    {
        match self {
            CommandName::Get => is_of_wish(option) || option.is(b"--slices"),
            CommandName::Add => is_of_wish(option),
            CommandName::Resume => option.is(b"--slices"),
            CommandName::Pause => false,
            CommandName::Cancel => false,
            CommandName::Remove => false,
            CommandName::Show => false,
            CommandName::List => false,
            CommandName::Report => false,
            CommandName::Export => false,
            CommandName::Archive => false,
            CommandName::History => option.is(b"--after") || option.is(b"--limit"),
            CommandName::Import => false,
            CommandName::Rehearse => false,
            CommandName::Serve => option.is(b"--port") || option.is(b"--workers"),
        }
    }
}

/// Whether the option tells something of an item that is wanted.
fn is_of_wish(option: &Text) -> bool
    ensures { IsTrue result ↔ Contains (codes "--word" ∷ codes "--name" ∷ codes "--sha256" ∷ []) option.now }
{
    option.is(b"--word") || option.is(b"--name") || option.is(b"--sha256")
}
