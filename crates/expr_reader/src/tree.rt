//! The tree of an expression.
//!
//! GitHub Docs, "Evaluate expressions in workflows and actions": literals, operators, functions; and
//! "Contexts reference".

ghost use Rattle.std.specs.Prelude.{◌≡◌};
ghost use Rattle.expr_reader.specs.Names.{context_name};

/// A value that an expression writes out.
#[derive(Drop)]
pub enum Literal {
    /// `null`
    Null,
    /// `true` or `false`
    Truth(bool),
    /// From -9007199254740991 to 9007199254740991.
    Whole(i64),
    /// The text between the quotes, each doubled quote being one.
    Text(String),
}

/// A context that an expression may name, ignoring case.
#[derive(Clone, Copy, PartialEq, Eq)]
pub enum Context {
    /// `github`
    Github,
    /// `env`
    Env,
    /// `vars`
    Vars,
    /// `job`
    Job,
    /// `jobs`
    Jobs,
    /// `steps`
    Steps,
    /// `runner`
    Runner,
    /// `secrets`
    Secrets,
    /// `strategy`
    Strategy,
    /// `matrix`
    Matrix,
    /// `needs`
    Needs,
    /// `inputs`
    Inputs,
}

/// A function that an expression may call, its name ignoring case.
#[derive(Clone, Copy, PartialEq, Eq)]
pub enum Function {
    /// `contains`
    Contains,
    /// `startsWith`
    StartsWith,
    /// `endsWith`
    EndsWith,
    /// `format`
    Format,
    /// `join`
    Join,
    /// `toJSON`
    ToJson,
    /// `fromJSON`
    FromJson,
    /// `success`
    Success,
    /// `failure`
    Failure,
    /// `cancelled`
    Cancelled,
    /// `always`
    Always,
}

/// How the dereference of every item is written; both mean the same.
#[derive(Clone, Copy, PartialEq, Eq)]
pub enum Wildcard {
    /// `.*`
    Dotted,
    /// `[*]`
    Bracketed,
}

/// `<`, `<=`, `>` and `>=`.
#[derive(Clone, Copy, PartialEq, Eq)]
pub enum Relation {
    /// `<`
    Less,
    /// `<=`
    AtMost,
    /// `>`
    Greater,
    /// `>=`
    AtLeast,
}

/// `==` and `!=`.
#[derive(Clone, Copy, PartialEq, Eq)]
pub enum Equality {
    /// `==`
    Equal,
    /// `!=`
    NotEqual,
}

/// An expression.
#[derive(Drop)]
pub enum Tree {
    /// A value that is written out.
    Literal(Literal),
    /// The name of a context.
    Context(Context),
    /// A call with its arguments, as many as the function takes.
    Call(Function, Vec<Tree>),
    /// An expression in parentheses.
    Group(Box<Tree>),
    /// `tree.name`, the name as it is written.
    Property(Box<Tree>, String),
    /// `tree[index]`
    Index(Box<Tree>, Box<Tree>),
    /// `tree.*` or `tree[*]`
    Wildcard(Wildcard, Box<Tree>),
    /// `!tree`
    Not(Box<Tree>),
    /// `left < right`, or two trees with another relation between them.
    Relation(Relation, Box<Tree>, Box<Tree>),
    /// `left == right` or `left != right`
    Equality(Equality, Box<Tree>, Box<Tree>),
    /// A chain of `&&`, of two parts or more.
    Both(Vec<Tree>),
    /// A chain of `||`, of two parts or more.
    Either(Vec<Tree>),
}

impl Context {
    /// The context's name, in small letters.
    pub fn name(self) -> &'static str
        ensures { result.now ≡ context_name self }
    {
        match self {
            Context::Github => "github",
            Context::Env => "env",
            Context::Vars => "vars",
            Context::Job => "job",
            Context::Jobs => "jobs",
            Context::Steps => "steps",
            Context::Runner => "runner",
            Context::Secrets => "secrets",
            Context::Strategy => "strategy",
            Context::Matrix => "matrix",
            Context::Needs => "needs",
            Context::Inputs => "inputs",
        }
    }
}
