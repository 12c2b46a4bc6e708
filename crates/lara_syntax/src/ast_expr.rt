//! Expressions over the columns of a row, with the places of their words.
use lara_base::{Boxed, Content, Name};
use lara_data::{FunOp, TwoOp};

/// An expression; `at` is its operator, or its first token other than `(` where it has none.
#[cycle(ast_expr)]
pub struct AstExpr {
    pub at: u32,
    pub form: AstForm,
}

/// What an expression is.
#[cycle(ast_expr)]
pub enum AstForm {
    Column(Name),
    Number(u64),
    Text(Content),
    Flag(bool),
    Inf,
    None,
    Two(TwoOp, Boxed<AstExpr>, Boxed<AstExpr>),
    Not(Boxed<AstExpr>),
    /// The condition, what holds where it does, and what holds elsewhere.
    If(Boxed<AstExpr>, Boxed<AstExpr>, Boxed<AstExpr>),
    Fun(FunOp, Boxed<AstExpr>),
}

impl Drop for AstExpr {
    #[cycle(drop_expr)]
    fn drop(self) {
        let AstExpr {
            at: _at,
            form: _form,
        } = self;
    }
}

impl Drop for AstForm {
    #[cycle(drop_expr)]
    fn drop(self) {
        match self {
            AstForm::Column(_name) => {}
            AstForm::Number(_n) => {}
            AstForm::Text(_text) => {}
            AstForm::Flag(_b) => {}
            AstForm::Inf => {}
            AstForm::None => {}
            AstForm::Two(_op, a, b) => {
                let _a = a.into_inner();
                let _b = b.into_inner();
            }
            AstForm::Not(a) => {
                let _a = a.into_inner();
            }
            AstForm::If(c, a, b) => {
                let _c = c.into_inner();
                let _a = a.into_inner();
                let _b = b.into_inner();
            }
            AstForm::Fun(_f, a) => {
                let _a = a.into_inner();
            }
        }
    }
}
