//! What holds of all texts and trees.

#[test]
fn laws_hold() {
    c_lex::laws::laws();
    c_parse_atom::laws::laws();
    c_syntax::laws::laws();
    c_syntax::laws::rows();
}
