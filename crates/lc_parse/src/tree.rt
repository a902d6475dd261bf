/// An expression, with the offset of its first byte in the script.
#[derive(Debug, Drop)]
#[cycle(tree)]
pub struct Expr {
    pub offset: usize,
    pub node: Node,
}

/// What an expression is.
#[derive(Debug, Drop)]
#[cycle(tree)]
pub enum Node {
    /// decimal digits
    Number(u64),
    /// a name that no parenthesis follows
    Name(String),
    /// a name and its arguments
    Call(String, Vec<Expr>),
    /// the elements between brackets
    List(Vec<Expr>),
}

/// A statement: an expression, and the name that its value is assigned to, if there is one.
#[derive(Debug, Drop)]
pub struct Statement {
    pub target: Option<String>,
    pub expr: Expr,
}

/// The statements of a script, in order.
#[derive(Debug, Drop)]
pub struct Script {
    pub statements: Vec<Statement>,
}
