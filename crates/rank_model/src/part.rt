use hot_units::Spread;

/// What a cell with bodies is for a rank: no leaf and not all of one other rank; a leaf with bodies
/// of several ranks; a leaf all of whose bodies are at hand; or a cell all of whose bodies are of
/// another rank.
#[derive(Clone, Copy)]
pub enum Part {
    Inner,
    Spread,
    Leaf,
    Away(u32),
}
