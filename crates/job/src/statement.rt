// The statements of a job script.

#[derive(Drop)]
pub enum Statement {
    /// `clock R S S ..`: the setting that comes closest to the frequency from below, over the sources.
    Clock { frequency: u32, sources: Vec<u32> },
}
