//! The tables of a machine's file.
ghost use Rattle.std.specs.Prelude.{◌≡◌};
ghost use Rattle.ng_motion.specs.Table.{no_table_text, table_name};

/// A table of a machine's file.
#[derive(Clone, Copy, Debug, PartialEq, Eq)]
pub enum TableName {
    Backlash,
    Home,
    Inputs,
    Motion,
    Setter,
    Sink,
    Spindle,
    Wait,
    Window,
}

/// All of them, in the order of their names.
pub(crate) const TABLES: &[TableName] = &[
    TableName::Backlash,
    TableName::Home,
    TableName::Inputs,
    TableName::Motion,
    TableName::Setter,
    TableName::Sink,
    TableName::Spindle,
    TableName::Wait,
    TableName::Window,
];

impl TableName {
    pub(crate) fn name(self) -> &'static str
        ensures { result.now ≡ table_name self }
    {
        match self {
            TableName::Backlash => "backlash",
            TableName::Home => "home",
            TableName::Inputs => "inputs",
            TableName::Motion => "motion",
            TableName::Setter => "setter",
            TableName::Sink => "sink",
            TableName::Spindle => "spindle",
            TableName::Wait => "wait",
            TableName::Window => "window",
        }
    }

    /// What is told where its name has another value.
    pub(crate) fn no_table_text(self) -> &'static [u8]
        ensures { result.now ≡ no_table_text self }
    {
        match self {
            TableName::Backlash => b": backlash isn't a table: [backlash], and its keys below it",
            TableName::Home => b": home isn't a table: [home], and its keys below it",
            TableName::Inputs => b": inputs isn't a table: [inputs], and its keys below it",
            TableName::Motion => b": motion isn't a table: [motion], and its keys below it",
            TableName::Setter => b": setter isn't a table: [setter], and its keys below it",
            TableName::Sink => b": sink isn't a table: [sink], and its keys below it",
            TableName::Spindle => b": spindle isn't a table: [spindle], and its keys below it",
            TableName::Wait => b": wait isn't a table: [wait], and its keys below it",
            TableName::Window => b": window isn't a table: [window], and its keys below it",
        }
    }
}
