//! The grammar of clauses as code holds it.
ghost use Rattle.ag_annex.specs.Grammar.{annex};

use crate::expressions::{
    ARGUMENTS_LINES, ARITHMETIC_LINES, CHOICE_LINES, COMPARISON_LINES, EXPRESSION_LINES,
    LOGICAL_LINES, MORE_ARGUMENTS_LINES, MORE_PARTS_LINES, OPERAND_LINES, PATH_LINES, PREFIX_LINES,
    PRIMARY_LINES, REST_LINES, SOME_ARGUMENTS_LINES, SOME_BODY_LINES,
};
use crate::nonterminals::{
    ARGUMENTS, ARITHMETIC, CHOICE, CLAIM, CLAUSE, CLAUSES, COMPARISON, EQUATION, EQUATIONS,
    EXPRESSION, LOCALS, LOGICAL, MORE_PARTS, MORE_VARIABLES, NODE, OPERAND, PATH, PREFIX, PRIMARY,
    REST, SOME_ARGUMENTS, SOME_BODY, SOME_LOCALS, SOME_NAME, SOME_VALUE, SOME_VARIABLES, TYPE_NAME,
    VARIABLE, VARIABLES,
};
use crate::statements::{
    CLAIM_LINES, CLAUSE_LINES, CLAUSES_LINES, EQUATION_LINES, EQUATIONS_LINES, LOCALS_LINES,
    MORE_VARIABLES_LINES, NODE_LINES, SOME_LOCALS_LINES, SOME_NAME_LINES, SOME_VALUE_LINES,
    SOME_VARIABLES_LINES, TYPE_NAME_LINES, VARIABLE_LINES, VARIABLES_LINES,
};
use ag_grammar::{Grammar, Production};

const NONTERMINALS: u8 = 30;

/// The grammar of clauses.
pub struct Clauses;

impl Grammar for Clauses {
    ghost plain = { λ _. annex };

    fn start(&self) -> u8 {
        CLAUSES
    }

    fn productions(&self, nonterminal: u8) -> &'static [Production<'static>] {
        if nonterminal >= NONTERMINALS {
            return &[];
        }
        match nonterminal {
            CLAUSES => CLAUSES_LINES,
            CLAUSE => CLAUSE_LINES,
            CLAIM => CLAIM_LINES,
            SOME_NAME => SOME_NAME_LINES,
            SOME_VALUE => SOME_VALUE_LINES,
            EQUATION => EQUATION_LINES,
            VARIABLES => VARIABLES_LINES,
            MORE_VARIABLES => MORE_VARIABLES_LINES,
            SOME_VARIABLES => SOME_VARIABLES_LINES,
            VARIABLE => VARIABLE_LINES,
            TYPE_NAME => TYPE_NAME_LINES,
            NODE => NODE_LINES,
            SOME_LOCALS => SOME_LOCALS_LINES,
            LOCALS => LOCALS_LINES,
            EQUATIONS => EQUATIONS_LINES,
            EXPRESSION => EXPRESSION_LINES,
            OPERAND => OPERAND_LINES,
            REST => REST_LINES,
            CHOICE => CHOICE_LINES,
            PREFIX => PREFIX_LINES,
            ARITHMETIC => ARITHMETIC_LINES,
            COMPARISON => COMPARISON_LINES,
            LOGICAL => LOGICAL_LINES,
            PRIMARY => PRIMARY_LINES,
            PATH => PATH_LINES,
            MORE_PARTS => MORE_PARTS_LINES,
            SOME_BODY => SOME_BODY_LINES,
            SOME_ARGUMENTS => SOME_ARGUMENTS_LINES,
            ARGUMENTS => ARGUMENTS_LINES,
            _ => MORE_ARGUMENTS_LINES,
        }
    }
}
