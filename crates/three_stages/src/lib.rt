//! A worked example: a rule book of three stages, with its sets, its image and the reports of updates of
//! it, as the definitions of the crate `rules` give them.

#![tactic(auto)]

ghost use Rattle.three_stages.specs.Example.{ThreeStageCases};

/// The example book has three reached sets at their distances, its image and that of a fresh book are
/// these bytes, and the reports of seven updates have these counts. It is well formed, so that what is
/// proved of well-formed books says something of it.
#[tactic(auto, using(crate::proofs::Example::three_stage_cases))]
pub fn three_stage_book()
    ensures { ThreeStageCases }
{}
