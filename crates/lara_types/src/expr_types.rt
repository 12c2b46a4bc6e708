//! The types of expressions over the columns of a table.
ghost use Rattle.std.specs.Prelude.{◌≡◌, nat_lt};
ghost use Rattle.lara_semiring.specs.Counts.{count_over};
ghost use Rattle.lara_data.specs.ExprTypes.{key_column_type, val_column_type, column_type, two_type, sides_type, not_type, branches_type, fun_type, type_or, expr_type};

use lara_base::Name;
use lara_data::{
    Expr, ExprType, FunOp, KeyCol, Kind, TableType, TwoOp, ValCol, key_expr_type, same_expr_type,
    val_expr_type,
};

// What the key column of that name reads as.
#[tactic(auto, unfolding(lara_data::specs::ExprTypes::key_column_type, lara_data::specs::Names::same_name))]
fn key_column_type(keys: &[KeyCol], name: &Name) -> Option<ExprType>
    ensures { result ≡ key_column_type keys.now name.now }
{
    match keys {
        [] => None,
        [first, rest @ ..] => {
            if name.same(&first.name) {
                return Some(key_expr_type(first.ty));
            }
            key_column_type(rest, name)
        }
    }
}

// What the value column of that name reads as.
#[tactic(auto, unfolding(lara_data::specs::ExprTypes::val_column_type, lara_data::specs::Names::same_name))]
fn val_column_type(vals: &[ValCol], name: &Name) -> Option<ExprType>
    ensures { result ≡ val_column_type vals.now name.now }
{
    match vals {
        [] => None,
        [first, rest @ ..] => {
            if name.same(&first.name) {
                return Some(val_expr_type(first.ty));
            }
            val_column_type(rest, name)
        }
    }
}

/// What the column of a name reads as.
pub fn column_type(ty: &TableType, name: &Name) -> Option<ExprType>
    ensures { result ≡ column_type ty.now name.now }
{
    match key_column_type(ty.keys.as_slice(), name) {
        Some(found) => Some(found),
        None => val_column_type(ty.vals.as_slice(), name),
    }
}

// What an operator makes of two sides of a type.
fn two_type(op: TwoOp, side: ExprType) -> Option<ExprType>
    ensures { result ≡ two_type op side }
{
    match (op, side) {
        (TwoOp::Or | TwoOp::And, ExprType::Flag) => Some(ExprType::Flag),
        (TwoOp::Eq | TwoOp::Ne | TwoOp::Lt | TwoOp::Le | TwoOp::Gt | TwoOp::Ge, _) => {
            Some(ExprType::Flag)
        }
        (TwoOp::Cat, ExprType::Text) => Some(ExprType::Text),
        (TwoOp::Add | TwoOp::Mul, ExprType::Number) => Some(ExprType::Number),
        (TwoOp::Add | TwoOp::Mul, ExprType::MinPlus) => Some(ExprType::MinPlus),
        (TwoOp::Add | TwoOp::Mul, ExprType::Path) => Some(ExprType::Path),
        _ => None,
    }
}

/// What an operator makes of its sides, which are to be of one type.
pub fn sides_type(op: TwoOp, left: ExprType, right: ExprType) -> Option<ExprType>
    ensures { result ≡ sides_type op left right }
{
    if same_expr_type(left, right) {
        two_type(op, left)
    } else {
        None
    }
}

/// What `not` makes of its side.
pub fn not_type(side: ExprType) -> Option<ExprType>
    ensures { result ≡ not_type side }
{
    match side {
        ExprType::Flag => Some(ExprType::Flag),
        _ => None,
    }
}

/// What an `if` makes of its condition and its branches.
pub fn branches_type(test: ExprType, yes: ExprType, no: ExprType) -> Option<ExprType>
    ensures { result ≡ branches_type test yes no }
{
    if same_expr_type(test, ExprType::Flag) && same_expr_type(yes, no) {
        Some(yes)
    } else {
        None
    }
}

/// What a function makes of its argument.
pub fn fun_type(fun: FunOp, argument: ExprType) -> Option<ExprType>
    ensures { result ≡ fun_type fun argument }
{
    match (fun, argument) {
        (FunOp::Num, ExprType::MinPlus | ExprType::Flag) => Some(ExprType::Number),
        (FunOp::Dist, ExprType::Number) => Some(ExprType::MinPlus),
        (FunOp::Len, ExprType::Text) => Some(ExprType::Number),
        (FunOp::Path, ExprType::Text) => Some(ExprType::Path),
        (FunOp::Text, ExprType::Path) => Some(ExprType::Text),
        _ => None,
    }
}

/// Whether a number is one of an expression: the greatest stands for all past the range.
pub fn is_in_range(number: u64) -> bool
    ensures { result ≡ nat_lt number count_over }
{
    number < u64::MAX
}

// The type, or a refusal of this kind.
fn type_or(kind: Kind, found: Option<ExprType>) -> Result<ExprType, Kind>
    ensures { result ≡ type_or kind found }
{
    match found {
        Some(ty) => Ok(ty),
        None => Err(kind),
    }
}

/// The type of an expression, or the kind of the first rule that is broken: its parts' first, left to right. It takes no
/// memory.
#[tactic(auto, using(lara_data::proofs::ExprEquations::expr_type_rules))]
pub fn expr_type(ty: &TableType, expr: &Expr) -> Result<ExprType, Kind>
    ensures { result ≡ expr_type ty.now expr.now }
{
    match expr {
        Expr::Column(name) => type_or(Kind::NoName, column_type(ty, name)),
        Expr::Number(n) => {
            if is_in_range(*n) {
                Ok(ExprType::Number)
            } else {
                Err(Kind::NotInRange)
            }
        }
        Expr::Text(text) => {
            text.known();
            Ok(ExprType::Text)
        }
        Expr::Flag(_) => Ok(ExprType::Flag),
        Expr::Inf => Ok(ExprType::MinPlus),
        Expr::None => Ok(ExprType::Path),
        Expr::Two(op, a, b) => {
            let left = expr_type(ty, a.get())?;
            let right = expr_type(ty, b.get())?;
            type_or(Kind::TypesDiffer, sides_type(*op, left, right))
        }
        Expr::Not(a) => {
            let side = expr_type(ty, a.get())?;
            type_or(Kind::TypesDiffer, not_type(side))
        }
        Expr::If(test, a, b) => {
            let test = expr_type(ty, test.get())?;
            let yes = expr_type(ty, a.get())?;
            let no = expr_type(ty, b.get())?;
            type_or(Kind::TypesDiffer, branches_type(test, yes, no))
        }
        Expr::Fun(fun, a) => {
            let argument = expr_type(ty, a.get())?;
            type_or(Kind::TypesDiffer, fun_type(*fun, argument))
        }
    }
}
