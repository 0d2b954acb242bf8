mod at_once;
mod doors;
mod loopback;
mod socket_files;
mod turns;
