use crate::op::Op;
use crate::shape::{Named, Shape};
use crate::text::Text;
use crate::value::Value;
use sqlite_items::{Boxed, Items};

/// What the typing rules make of a name or an operator. It is `Unknown` throughout a tree that was just read.
#[derive(Clone, Copy, PartialEq, Eq)]
pub enum Meant {
    Unknown,
    Op(Op),
    /// The place of a record's field, counted from 0.
    Field(u16),
    /// The place of a oneof's tag, counted from 0.
    Tag(u16),
    /// A routine's place in the program, counted from 0.
    Routine(u16),
    Local,
    /// A node variable's place in the program, counted from 0.
    NodeVar(u16),
}

/// An operator between two operands. `a ~= b` has none: it is `~(a = b)`.
#[derive(Clone, Copy, PartialEq, Eq)]
pub enum Infix {
    Or,
    Cor,
    And,
    Cand,
    Lt,
    Le,
    Equal,
    Ge,
    Gt,
    Add,
    Sub,
    Concat,
    Mul,
    Div,
    Mod,
}

/// An operator before its operand.
#[derive(Clone, Copy, PartialEq, Eq)]
pub enum Prefix {
    Minus,
    Not,
}

/// An expression, with the line of its first token. Brackets leave no node, and what stood in them keeps its line.
#[cycle(expr)]
#[derive(Drop)]
pub enum Expr {
    Literal(Value, u32),
    Name(Text, u32, Meant),
    Binary(Boxed<Expr>, Infix, Boxed<Expr>, u32, Meant),
    Unary(Prefix, Boxed<Expr>, u32, Meant),
    Call(Text, Items<Expr>, u32, Meant),
    /// `T$op(..)`
    Op(Shape, Text, Items<Expr>, u32, Meant),
    /// `T${..}`
    Record(Shape, Items<FieldInit>, u32, Meant),
    /// `T$[..]`
    Array(Shape, Items<Expr>, u32, Meant),
    Up(Boxed<Expr>, u32),
    Down(Boxed<Expr>, u32),
    Now(u32),
    Field(Boxed<Expr>, Text, u32, Meant),
    Index(Boxed<Expr>, Boxed<Expr>, u32, Meant),
}

/// `field: value` of a record constructor.
#[cycle(expr)]
#[derive(Drop)]
pub struct FieldInit {
    pub name: Text,
    pub value: Expr,
}

/// What stands before `:=`.
#[derive(Drop)]
pub enum Target {
    Name(Text, u32, Meant),
    Field(Expr, Text, u32, Meant),
    Index(Expr, Expr, u32, Meant),
}

/// A remote call: the routine, its arguments, the node, and for `maybe` the time limit in ms.
#[derive(Drop)]
pub enum Remote {
    Once(Text, Items<Expr>, Expr, u32, Meant),
    Maybe(Text, Items<Expr>, Expr, Expr, u32, Meant),
}

/// What a `for` goes over.
#[derive(Drop)]
pub enum Iter {
    FromTo(Expr, Expr, u32),
    Elements(Shape, Expr, u32),
}

/// A statement, with the line of its first token. What stands round another one has no line of its own.
#[cycle(stmt)]
#[derive(Drop)]
pub enum Stmt {
    Declare(Text, Shape, Option<Expr>, u32),
    Assign(Target, Expr, u32),
    Remote(Option<Text>, Remote, u32, Meant),
    /// A call of a routine or of an operation.
    Call(Expr, u32),
    PutLine(Expr, u32),
    Sleep(Expr, u32),
    Fork(Text, Items<Expr>, u32, Meant),
    Return(Option<Expr>, u32),
    Signal(Text, Option<Expr>, u32),
    If(Expr, Items<Stmt>, Items<Arm>, Option<Items<Stmt>>, u32),
    While(Expr, Items<Stmt>, u32),
    For(Text, Shape, Iter, Items<Stmt>, u32),
    Tagcase(Expr, Items<TagArm>, Option<Items<Stmt>>, u32),
    Begin(Items<Stmt>, u32),
    Region(Expr, Items<Stmt>, u32),
    Except(Boxed<Stmt>, Handlers),
    Resignal(Boxed<Stmt>, Items<Text>),
}

/// `elseif test then body`
#[cycle(stmt)]
#[derive(Drop)]
pub struct Arm {
    pub test: Expr,
    pub body: Items<Stmt>,
}

/// `tag name (variable): body`
#[cycle(stmt)]
#[derive(Drop)]
pub struct TagArm {
    pub tag: Text,
    pub variable: Option<Named>,
    pub body: Items<Stmt>,
    pub meant: Meant,
}

/// `when names (variable): body`
#[cycle(stmt)]
#[derive(Drop)]
pub struct When {
    pub names: Items<Text>,
    pub variable: Option<Named>,
    pub body: Items<Stmt>,
}

/// The handlers of an `except`.
#[cycle(stmt)]
#[derive(Drop)]
pub struct Handlers {
    pub whens: Items<When>,
    pub others: Option<Items<Stmt>>,
}
