//! What the algebra speaks of: table types, entries, the trees of scripts and plugins, and what tables, their operations
//! and scripts mean.
#![tactic(auto)]

mod arg;
mod columns;
mod entry;
mod expr;
mod expr_val;
mod faults;
mod limits;
mod node;
mod op_columns;
mod order;
mod plugin;
mod refusal;
mod schema;
mod script;
mod shape;
mod table_type;

pub use arg::{Arg, Call, Def, KeyDef, NamePair};
pub use columns::{
    all_keys, all_vals, common_keys, common_vals, key_cols, key_names, other_keys, same_col,
    val_types,
};
pub use entry::{Cell, Entry, Keyed};
pub use expr::{Expr, FunOp, TwoOp};
pub use expr_val::{ExprType, ExprVal, key_expr_type, same_expr_type, val_expr_type};
pub use faults::{FileFault, IterFault};
pub use limits::MAX_COLS;
pub use node::{Node, Op};
pub use op_columns::{
    agg_columns, join_columns, map_columns, promote_columns, renamed_columns, union_columns,
};
pub use order::{EachOp, Order};
pub use plugin::Plugin;
pub use refusal::{Kind, ReadFault, Refusal};
pub use schema::Schema;
pub use script::{Script, Statement};
pub use shape::{ColPair, JoinShape, Shape};
pub use table_type::{ColumnKind, KeyCol, TableType, ValCol, is_key_name, is_val_name};

#[cfg(test)]
mod tests;
#[cfg(test)]
mod tests_copies;
#[cfg(test)]
mod tests_faults;
#[cfg(test)]
mod tests_plugins;
#[cfg(test)]
mod tests_samples;
