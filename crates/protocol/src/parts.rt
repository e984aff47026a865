// The parts of a protocol.
use names::Name;
use rules::table::RuleTable;
use tables::term_table::TermTable;
use tables::types::TypeTable;
use tables::variables::VariableTable;

#[derive(Drop, PartialEq)]
pub struct Parts {
    pub name: Name,
    pub types: TypeTable,
    pub variables: VariableTable,
    pub terms: TermTable,
    pub initial: Vec<u16>,
    pub rules: RuleTable,
}
