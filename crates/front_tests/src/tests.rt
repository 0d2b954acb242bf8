mod drawing;
mod fronts;
mod queue;
mod workers;
