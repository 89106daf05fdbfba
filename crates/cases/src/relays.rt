//! Cases of hubs with their clients, of views, and of what these use: a parser, readers, and values with their texts.

mod asks;
mod at_once;
mod calls;
mod cuts;
mod drawn;
mod failing;
mod far;
mod hub_steps;
mod hubs;
mod many;
mod parsers;
mod player;
mod readers;
mod sums;
mod values;
mod views;
mod wordings;
mod writers;

pub use player::RelayPlayer;
