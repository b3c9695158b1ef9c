ghost use Rattle.cell_mail.specs.Laws as laws;

/// A content has at most one spelling.
#[tactic(auto, using(crate::proofs::Hints::on_laws))]
pub fn one_spelling()
    ensures law { laws.OneSpelling }
{}

/// Bytes spell at most one content.
#[tactic(auto, using(crate::proofs::Hints::on_laws))]
pub fn one_content()
    ensures law { laws.OneContent }
{}
