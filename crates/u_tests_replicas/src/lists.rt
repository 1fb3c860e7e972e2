//! Worlds on random lists of events, beside a plain world.

mod beside;
mod list_tests;
mod listing;
mod plain_replica;
mod plain_world;
mod table;
