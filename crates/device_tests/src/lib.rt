// What the owner of lent memory knows once a device is gone, and the device's examples.
#![tactic(auto)]

mod owner;
#[cfg(test)]
mod tests;

pub use owner::stored;
