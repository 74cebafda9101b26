//! The programs with a loan channel and with a pool that BUS.md shows.
mod channel;
mod pool;
