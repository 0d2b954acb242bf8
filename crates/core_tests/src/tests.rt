mod networks;
mod rounds;
