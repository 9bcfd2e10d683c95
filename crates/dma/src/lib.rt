// DMA channels and the buffers that they carry, after esp-hal's dma module.
#![tactic(auto)]

pub mod buffer;
pub mod channel;
pub mod counting;
pub mod error;
pub mod frame;
pub mod load;
pub mod phased;
pub mod store;
pub mod strips;
pub mod table;
#[cfg(test)]
mod tests;
