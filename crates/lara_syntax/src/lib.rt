//! The language: bytes to tokens, and tokens to the tree with places or the first refusal.
#![tactic(auto)]

mod ast;
mod ast_copy;
mod ast_expr;
mod ast_part;
mod ast_part_copy;
mod classes;
mod count;
mod fault;
mod fixed_words;
mod item;
mod literals;
mod parsing;
mod rules;
mod scan;
mod scan_fault;
mod scan_word;
mod steps;
mod text_content;
mod token;

pub use ast::{
    Ast, AstBy, AstEntry, AstKeyCol, AstLit, AstName, AstNode, AstOp, AstStatement, AstType,
    AstValCol, AstValue,
};
pub use ast_expr::{AstExpr, AstForm};
pub use ast_part::{AstArg, AstArgLit, AstArgValue, AstCall, AstDef, AstDefs, AstKeyDef, AstPair};
pub use lara_data::{FunOp, KeyCol, Kind, ReadFault, Refusal, TableType, TwoOp, ValCol};
pub use literals::{is_key_in_range, is_key_lit, is_val_in_range, is_val_lit, key_of, value_of};
pub use parsing::parse;
pub use token::{Token, TokenList, TokenWord, tokens};

#[cfg(test)]
mod tests_copies;
#[cfg(test)]
mod tests_exprs;
#[cfg(test)]
mod tests_grammar;
#[cfg(test)]
mod tests_shown;
#[cfg(test)]
mod tests_tokens;
