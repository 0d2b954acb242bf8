mod answers;
mod drawn;
mod networks;
