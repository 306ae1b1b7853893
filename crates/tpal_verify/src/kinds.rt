// What is known of a word, of a task's end and of its mark.

ghost use Rattle.std.specs.Prelude.{◌≡◌};
ghost use Rattle.tpal_verify.specs.Kinds.{is_root, is_side, is_marked, is_clear, kind_eq};
ghost use Rattle.tpal_verify.specs.Kinds.{kind_below, end_below, mark_below, grant_below};
ghost use Rattle.tpal_verify.specs.Kinds.{met_below, kind_joined, parted, kept, unmet};

/// What is known of the word in a register or a cell.
#[derive(Clone, Copy, PartialEq, Eq, Debug)]
pub enum Kind {
    /// A number.
    Number,
    /// Nothing.
    Empty,
    /// The record of the task's end, which is that of a side.
    Own,
    /// Nothing where the task ends the run, else the record of its end.
    Up,
    /// The pending record.
    Pend,
    /// The met record.
    Met,
    /// The label of a promotion-ready block with this handler.
    Back(u16),
    /// Any word.
    Any,
}

/// What is known of a task's end.
#[derive(Clone, Copy, PartialEq, Eq, Debug)]
pub enum EndFact {
    /// It ends the run.
    Root,
    /// It ends a side of a fork.
    Side,
    /// One of both.
    Either,
}

/// What is known of a task's mark.
#[derive(Clone, Copy, PartialEq, Eq, Debug)]
pub enum MarkFact {
    /// It stands.
    Marked,
    /// There is none.
    Clear,
    /// One of both.
    Maybe,
}

/// Whether a task with this end surely ends the run.
pub fn is_root(end: EndFact) -> bool
    ensures { result ≡ is_root end }
{
    match end {
        EndFact::Root => true,
        EndFact::Side => false,
        EndFact::Either => false,
    }
}

/// Whether it surely ends a side.
pub fn is_side(end: EndFact) -> bool
    ensures { result ≡ is_side end }
{
    match end {
        EndFact::Root => false,
        EndFact::Side => true,
        EndFact::Either => false,
    }
}

/// Whether the mark surely stands.
pub fn is_marked(mark: MarkFact) -> bool
    ensures { result ≡ is_marked mark }
{
    match mark {
        MarkFact::Marked => true,
        MarkFact::Clear => false,
        MarkFact::Maybe => false,
    }
}

/// Whether there surely is no mark.
pub fn is_clear(mark: MarkFact) -> bool
    ensures { result ≡ is_clear mark }
{
    match mark {
        MarkFact::Marked => false,
        MarkFact::Clear => true,
        MarkFact::Maybe => false,
    }
}

/// Whether two kinds are the same.
pub fn is_same(a: Kind, b: Kind) -> bool
    ensures { result ≡ kind_eq a b }
{
    a == b
}

/// Whether a kind is below another, in shapes of which the lower has this end.
pub fn is_below(end: EndFact, lower: Kind, upper: Kind) -> bool
    ensures { result ≡ kind_below end lower upper }
{
    match upper {
        Kind::Number => is_same(lower, upper),
        Kind::Empty => is_same(lower, upper),
        Kind::Own => is_same(lower, upper),
        Kind::Up => match lower {
            Kind::Number => false,
            Kind::Empty => is_root(end),
            Kind::Own => true,
            Kind::Up => true,
            Kind::Pend => false,
            Kind::Met => false,
            Kind::Back(_) => false,
            Kind::Any => false,
        },
        Kind::Pend => is_same(lower, upper),
        Kind::Met => is_same(lower, upper),
        Kind::Back(_) => is_same(lower, upper),
        Kind::Any => true,
    }
}

/// The least kind above both, in shapes with these ends.
pub fn joined_kind(e: EndFact, f: EndFact, a: Kind, b: Kind) -> Kind
    ensures { result ≡ kind_joined e f a b }
{
    if is_below(f, b, a) {
        a
    } else if is_below(e, a, b) {
        b
    } else if is_below(e, a, Kind::Up) && is_below(f, b, Kind::Up) {
        Kind::Up
    } else {
        Kind::Any
    }
}

/// Whether the first end is known where the second is.
pub fn is_end_below(lower: EndFact, upper: EndFact) -> bool
    ensures { result ≡ end_below lower upper }
{
    match upper {
        EndFact::Root => is_root(lower),
        EndFact::Side => is_side(lower),
        EndFact::Either => true,
    }
}

/// What is known of a mark where one of both is.
pub fn is_mark_below(lower: MarkFact, upper: MarkFact) -> bool
    ensures { result ≡ mark_below lower upper }
{
    match upper {
        MarkFact::Marked => is_marked(lower),
        MarkFact::Clear => is_clear(lower),
        MarkFact::Maybe => true,
    }
}

/// Whether a grant is known where the second one is.
pub fn is_grant_below(lower: bool, upper: bool) -> bool
    ensures { result ≡ grant_below lower upper }
{
    !upper || lower
}

/// Whether the met record is known where the second one is.
pub fn is_met_below(lower: Option<u32>, upper: Option<u32>) -> bool
    ensures { result ≡ met_below lower upper }
{
    match upper {
        None => true,
        Some(b) => match lower {
            None => false,
            Some(a) => a == b,
        },
    }
}

/// What a kind becomes in both sides of a fork.
pub fn parted(kind: Kind) -> Kind
    ensures { result ≡ parted kind }
{
    match kind {
        Kind::Number => kind,
        Kind::Empty => kind,
        Kind::Own => Kind::Any,
        Kind::Up => Kind::Any,
        Kind::Pend => Kind::Any,
        Kind::Met => Kind::Any,
        Kind::Back(_) => kind,
        Kind::Any => kind,
    }
}

/// What the kind of a cell becomes in what a fork leaves over for the join.
pub fn kept(kind: Kind) -> Kind
    ensures { result ≡ kept kind }
{
    match kind {
        Kind::Number => kind,
        Kind::Empty => kind,
        Kind::Own => kind,
        Kind::Up => kind,
        Kind::Pend => Kind::Any,
        Kind::Met => Kind::Any,
        Kind::Back(_) => Kind::Any,
        Kind::Any => kind,
    }
}

/// What a kind becomes behind a join of the met record.
pub fn unmet(kind: Kind) -> Kind
    ensures { result ≡ unmet kind }
{
    match kind {
        Kind::Number => kind,
        Kind::Empty => kind,
        Kind::Own => kind,
        Kind::Up => kind,
        Kind::Pend => kind,
        Kind::Met => Kind::Any,
        Kind::Back(_) => kind,
        Kind::Any => kind,
    }
}
