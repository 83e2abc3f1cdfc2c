//! Why a statement was refused.
ghost use Rattle.std.specs.Prelude.{◌≡◌, ◌++◌, ◌≤◌, [], length};
ghost use Rattle.hq_reply.specs.Texts.{fault_text, node_text};

/// Why a statement was refused, in the order in which refusals are tested. Nodes are numbered from 0.
#[derive(Clone, Copy, Debug, PartialEq, Eq)]
pub enum Fault {
    /// The piece is longer than 65,536 bytes.
    TooLong,
    /// It isn't UTF-8, not in the grammar, or unended.
    Syntax,
    /// The transaction has failed, and the statement doesn't end it.
    TransactionFailed,
    /// The statement can't stand inside a transaction.
    TransactionOpen,
    /// There is no transaction to end.
    NoTransaction,
    /// The statement passes a limit.
    Limit,
    /// A column is named twice.
    DuplicateColumn,
    /// No column has this name.
    UndefinedColumn,
    /// A table has this name already.
    TableExists,
    /// There are as many tables as there may be.
    TooManyTables,
    /// No table has this name.
    UndefinedTable,
    /// Two sources have one name.
    DuplicateSource,
    /// More than one column has this name.
    AmbiguousColumn,
    /// The kinds do not fit.
    TypeMismatch,
    /// A column stands outside of aggregates and isn't grouped by.
    NotGrouped,
    /// Every node is marked down, and none answered.
    NoSegment,
    /// A number passes 64 bits.
    NumericRange,
    /// A row to insert has NULL in a column that takes none.
    NullNotAllowed,
    /// All lanes of the table are out.
    TooManyWriters,
    /// A store failed.
    Store,
    /// The host of this node failed.
    Host { node: u8 },
    /// The link of this node lost too much.
    LinkLost { node: u8 },
    /// The link of this node failed.
    LinkFailed { node: u8 },
    /// Stored bytes begin no block.
    BadBlock,
    /// There was no memory.
    NoMemory,
}

// A refusal's code and text: the number of a node may stand inside it.
#[derive(Clone, Copy)]
pub(crate) struct Wording {
    pub(crate) before: &'static [u8],
    pub(crate) node: Option<u8>,
    pub(crate) after: &'static [u8],
}

fn plain(text: &'static [u8]) -> Wording
    ensures before { result.before.now ≡ text.now }
    ensures node { result.node ≡ None }
    ensures after { result.after.now ≡ [] }
{
    Wording {
        before: text,
        node: None,
        after: b"",
    }
}

fn numbered(before: &'static [u8], node: u8, after: &'static [u8]) -> Wording
    ensures before { result.before.now ≡ before.now }
    ensures node { result.node ≡ Some node }
    ensures after { result.after.now ≡ after.now }
{
    Wording {
        before,
        node: Some(node),
        after,
    }
}

impl Fault {
    // Its code and text.
    pub(crate) fn wording(self) -> Wording
        ensures text { result.before.now ++ node_text result.node ++ result.after.now ≡ fault_text self }
        ensures before_short { length result.before.now ≤ 40 }
        ensures after_short { length result.after.now ≤ 40 }
    {
        match self {
            Fault::TooLong => plain(b"54000 statement too long"),
            Fault::Syntax => plain(b"42601 syntax error"),
            Fault::TransactionFailed => plain(b"25P02 transaction has failed"),
            Fault::TransactionOpen => plain(b"25001 transaction is open"),
            Fault::NoTransaction => plain(b"25P01 no transaction"),
            Fault::Limit => plain(b"54000 limit passed"),
            Fault::DuplicateColumn => plain(b"42701 column named twice"),
            Fault::UndefinedColumn => plain(b"42703 no such column"),
            Fault::TableExists => plain(b"42P07 table exists"),
            Fault::TooManyTables => plain(b"54000 too many tables"),
            Fault::UndefinedTable => plain(b"42P01 no such table"),
            Fault::DuplicateSource => plain(b"42712 source name used twice"),
            Fault::AmbiguousColumn => plain(b"42702 column is ambiguous"),
            Fault::TypeMismatch => plain(b"42804 kinds do not fit"),
            Fault::NotGrouped => plain(b"42803 column is not grouped"),
            Fault::NoSegment => plain(b"HQ004 no segment"),
            Fault::NumericRange => plain(b"22003 number out of range"),
            Fault::NullNotAllowed => plain(b"23502 null not allowed"),
            Fault::TooManyWriters => plain(b"HQ005 too many writers"),
            Fault::Store => plain(b"58030 store failed"),
            Fault::Host { node } => numbered(b"HQ001 segment ", node, b" failed"),
            Fault::LinkLost { node } => numbered(b"HQ002 link ", node, b" lost"),
            Fault::LinkFailed { node } => numbered(b"HQ003 link ", node, b" failed"),
            Fault::BadBlock => plain(b"HQ006 bad block"),
            Fault::NoMemory => plain(b"53200 out of memory"),
        }
    }
}
