mod counting;
mod meeting;
mod order;
mod relaxing;
