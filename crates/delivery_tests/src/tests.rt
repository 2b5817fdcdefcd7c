//! Deliveries from the request to the schedule, over far ends in memory, and the commands on signatures.

mod couriers;
mod signings;
