//! One constructor for each alternative of the grammar that has parts; the types of one word are the variants of
//! `Shape`. Each answers exactly the node of its arguments, and fails only where it needs memory for a node inside.

mod exprs;
mod programs;
mod shapes;
mod stmts;

pub use exprs::{
    array_literal, binary, bool_literal, call, char_literal, down, field, field_init, index,
    int_literal, name, nil, now, operation, record_literal, string_literal, unary, up,
};
pub use programs::{
    cluster, equate, export, first_empty, first_literal, first_lock, first_semaphore, node,
    node_var, program, routine, start,
};
pub use shapes::{array_of, listed, named, named_type, oneof_of, record_of};
pub use stmts::{
    arm, assign, begin, call_stmt, declare, elements, except, for_do, fork, from_to, handlers,
    if_then, maybe, once, put_line, region, remote, resignal, return_value, signal, sleep, tag_arm,
    tagcase, to_field, to_index, to_name, when, while_do,
};
