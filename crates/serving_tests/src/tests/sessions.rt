mod links;
mod operator;
mod session;
