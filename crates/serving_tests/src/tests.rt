mod epochs;
mod feeds;
mod histories;
mod lanes;
mod requests;
mod sessions;
mod stores;
mod words;
