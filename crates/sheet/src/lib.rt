// The sheet reader: reads a sheet of any bytes into the buffers of a call.
#![tactic(auto)]

pub mod read;
