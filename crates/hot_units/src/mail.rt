/// How letters between ranks are handed out: all of them each round, oldest first or newest first;
/// one a round; or by draws from a seed.
#[derive(Clone, Copy)]
pub enum Mail {
    Prompt,
    Last,
    Single,
    Seeded(u64),
}
