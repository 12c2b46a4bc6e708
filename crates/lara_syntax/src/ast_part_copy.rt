//! Copies of expressions and of what holds them.
ghost use Rattle.std.specs.Prelude.{◌≡◌, IfOk, IsOk, IsTrue};
ghost use Rattle.lara_syntax.specs.Atoms.{is_atom, is_plain_arg, is_plain_arg_value};

use crate::ast_expr::{AstExpr, AstForm};
use crate::ast_part::{AstArg, AstArgLit, AstArgValue, AstCall, AstDef, AstKeyDef, AstPair};
use lara_base::{Boxed, Copied};
use std::alloc::{AllocError, Global};

impl Copied for AstExpr {
    #[cycle(copy_expr)]
    fn copy(&self, alloc: Global) -> Result<AstExpr, AllocError>
        ensures same { IfOk result (λ r. r ≡ self.now) }
        ensures exact { IsTrue (is_atom self.now.form) → IsOk result }
    {
        Ok(AstExpr {
            at: self.at,
            form: self.form.copy(alloc)?,
        })
    }
}

impl Copied for AstForm {
    #[cycle(copy_expr)]
    fn copy(&self, alloc: Global) -> Result<AstForm, AllocError>
        ensures same { IfOk result (λ r. r ≡ self.now) }
        ensures exact { IsTrue (is_atom self.now) → IsOk result }
    {
        match self {
            AstForm::Column(name) => Ok(AstForm::Column(name.copy(alloc)?)),
            AstForm::Number(n) => Ok(AstForm::Number(*n)),
            AstForm::Text(text) => Ok(AstForm::Text(text.copy(alloc)?)),
            AstForm::Flag(flag) => Ok(AstForm::Flag(*flag)),
            AstForm::Inf => Ok(AstForm::Inf),
            AstForm::None => Ok(AstForm::None),
            AstForm::Two(op, a, b) => Ok(AstForm::Two(
                *op,
                Boxed::new(alloc, a.get().copy(alloc)?)?,
                Boxed::new(alloc, b.get().copy(alloc)?)?,
            )),
            AstForm::Not(a) => Ok(AstForm::Not(Boxed::new(alloc, a.get().copy(alloc)?)?)),
            AstForm::If(test, a, b) => Ok(AstForm::If(
                Boxed::new(alloc, test.get().copy(alloc)?)?,
                Boxed::new(alloc, a.get().copy(alloc)?)?,
                Boxed::new(alloc, b.get().copy(alloc)?)?,
            )),
            AstForm::Fun(op, a) => {
                Ok(AstForm::Fun(*op, Boxed::new(alloc, a.get().copy(alloc)?)?))
            }
        }
    }
}

impl Copied for AstDef {
    fn copy(&self, alloc: Global) -> Result<AstDef, AllocError> {
        Ok(AstDef {
            col: self.col.copy(alloc)?,
            expr: self.expr.copy(alloc)?,
        })
    }
}

impl Copied for AstKeyDef {
    fn copy(&self, alloc: Global) -> Result<AstKeyDef, AllocError> {
        Ok(AstKeyDef {
            col: self.col.copy(alloc)?,
            expr: self.expr.copy(alloc)?,
        })
    }
}

impl Copied for AstPair {
    fn copy(&self, alloc: Global) -> Result<AstPair, AllocError> {
        Ok(AstPair {
            old: self.old.copy(alloc)?,
            new: self.new.copy(alloc)?,
        })
    }
}

impl Copied for AstCall {
    fn copy(&self, alloc: Global) -> Result<AstCall, AllocError> {
        Ok(AstCall {
            plugin: self.plugin.copy(alloc)?,
            args: self.args.copy(alloc)?,
            cols: self.cols.copy(alloc)?,
        })
    }
}

impl Copied for AstArg {
    fn copy(&self, alloc: Global) -> Result<AstArg, AllocError>
        ensures same { IfOk result (λ r. r ≡ self.now) }
        ensures exact { IsTrue (is_plain_arg self.now) → IsOk result }
    {
        match self {
            AstArg::Column(name) => Ok(AstArg::Column(name.copy(alloc)?)),
            AstArg::Literal(lit) => Ok(AstArg::Literal(lit.copy(alloc)?)),
        }
    }
}

impl Copied for AstArgLit {
    fn copy(&self, alloc: Global) -> Result<AstArgLit, AllocError>
        ensures same { IfOk result (λ r. r ≡ self.now) }
        ensures exact { IsTrue (is_plain_arg_value self.now.value) → IsOk result }
    {
        Ok(AstArgLit {
            at: self.at,
            value: self.value.copy(alloc)?,
        })
    }
}

impl Copied for AstArgValue {
    fn copy(&self, alloc: Global) -> Result<AstArgValue, AllocError>
        ensures same { IfOk result (λ r. r ≡ self.now) }
        ensures exact { IsTrue (is_plain_arg_value self.now) → IsOk result }
    {
        match self {
            AstArgValue::Number(n) => Ok(AstArgValue::Number(*n)),
            AstArgValue::Text(text) => Ok(AstArgValue::Text(text.copy(alloc)?)),
            AstArgValue::Flag(flag) => Ok(AstArgValue::Flag(*flag)),
        }
    }
}
