use camelot_values::Kind;

/// The kinds of a function: of its parameters, of its result, and of the expressions of its body, each expression
/// behind its parts, which are in text order, so that the whole body comes last.
#[derive(Debug, Drop)]
pub struct FunKinds {
    pub params: Vec<Kind>,
    pub result: Kind,
    pub exprs: Vec<Kind>,
}
