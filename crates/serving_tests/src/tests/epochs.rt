mod faults;
mod many;
mod rows;
mod stores;
mod threads;
